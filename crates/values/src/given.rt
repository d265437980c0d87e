// An element as a caller hands it over, before it is judged.
#[derive(Clone, Copy, PartialEq, Eq)]
pub struct Given<'a> {
    pub number: Option<i64>,
    pub text: Option<&'a [u8]>,
}
