//! Targets that jumps get once they are known.

/// Stands for the instruction behind the innermost loop until it is known.
pub const LEAVE: u32 = 4_294_967_295;
/// Stands for the next round of the innermost loop.
pub const CONTINUE: u32 = 4_294_967_294;
/// Stands for the end of the body.
pub const RETURN: u32 = 4_294_967_293;
/// Stands for the end of a chain of parts.
pub const END: u32 = 4_294_967_292;
/// Stands for the statement of a `when`. All targets lie below it.
pub const BODY: u32 = 4_294_967_291;

/// The target that each mark gets. One that is the mark itself leaves it.
#[derive(Clone, Copy)]
pub struct Aims {
    pub leave: u32,
    pub continue_to: u32,
    pub return_to: u32,
    pub end: u32,
    pub body: u32,
}
