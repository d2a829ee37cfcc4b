// The record of a run: N, L, B, the rule, and the counts of accepted posts and frames. The rule stays a number: C reads and writes the record.
#[repr(C)]
#[derive(Clone, Copy)]
pub struct Run {
    pub nodes: u32,
    pub slots: u32,
    pub limit: u32,
    pub rule: u32,
    pub posts: u32,
    pub frames: u32,
}
