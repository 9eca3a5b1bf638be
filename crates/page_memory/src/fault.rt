/// Why memory refuses an access, in the order in which it is tested.
#[derive(Clone, Copy, PartialEq, Eq, Debug)]
pub enum MemoryFault {
    /// The address is no multiple of the access's width.
    Misaligned,
    /// No page is mapped there, or it lacks the right.
    PageFault,
}
