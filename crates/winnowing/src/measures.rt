// The measures of a scan.
ghost use Rattle.std.specs.Prelude.{◌≤◌, ◌<◌};
ghost use Rattle.base.specs.Limits.{k_limit, w_limit};

// How many letters of a k-mer stand in front of its last one, how many k-mers a window has, and how many entries the buffers have
// room for.
#[derive(Clone, Copy)]
pub(crate) struct Measures {
    pub(crate) last: usize,
    pub(crate) w: usize,
    pub(crate) room: usize,
    ghost short: { last < k_limit },
    ghost some: { 1 ≤ w },
    ghost narrow: { w ≤ w_limit },
}
