// What operations over bytes ask: of a number, which the first byte says, and the bytes after it.
use crate::text::after;
use book::bytes;
use winners::Worth;

pub(crate) fn numbered<N: From<u8>, T, F: FnOnce(&[u8], N) -> T>(s: &[u8], ask: F) -> T
    requires { F.IsAlwaysCallable ask }
{
    ask(after(s, 1), bytes::byte_at(s, 0).into())
}

// The greatest value without the clients of a discard byte. In a closure, since a function of winners gets no proof by its name alone.
pub(crate) fn worth(s: &[u8]) -> Worth {
    numbered(s, |book, discard| winners::greatest_value(book, discard))
}
