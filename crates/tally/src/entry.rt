// A key, and how often it came.
#[derive(Clone, Copy, PartialEq, Eq, Debug)]
pub struct Entry<K> {
    pub key: K,
    pub count: u16,
}
