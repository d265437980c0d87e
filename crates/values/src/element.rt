// An element of a value: a number, a text or both, never neither.
use super::text::Text;

#[derive(Clone, Copy, PartialEq, Eq)]
pub enum Element {
    Number(i64),
    Text(Text),
    Both(i64, Text),
}
