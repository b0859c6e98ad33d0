// Something that is tried, and what it is called.
#[derive(Clone, Copy, Debug, PartialEq, Eq)]
pub struct Case<T> {
    pub name: &'static str,
    pub tried: T,
}
