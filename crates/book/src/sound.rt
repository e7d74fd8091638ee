// A book that is known to be sound: the layers above weigh and judge no other.
ghost use Rattle.std.specs.Prelude.{◌≡◌};
ghost use Rattle.book.specs.Value.{sound_number};

use crate::value::Book;

// A lent book that passes questions 2 to 5.
#[derive(Clone, Copy)]
pub struct SoundBook<'a> {
    pub book: &'a Book,
    ghost sound: { sound_number book.now ≡ 0 },
}
