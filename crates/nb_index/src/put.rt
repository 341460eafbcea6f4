/// What was put into an index: a number under a key.
#[derive(Clone, Copy)]
pub struct Put {
    /// 16 bytes, of any content.
    pub key: [u8; 16],
    /// 4 bytes wide.
    pub value: u32,
}
