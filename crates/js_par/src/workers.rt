//! What work is dealt with.

ghost use Rattle.std.specs.Prelude.{◌≡◌, ◌≤◌};

/// The runtime on whose threads work is done, the gate that is called around it, and how many threads may work at once.
#[derive(Drop)]
pub struct Workers<'a, R, G> {
    pub rt: &'a R,
    pub gate: &'a G,
    pub count: u32,
    pub ghost some: { 1 ≤ count },
    pub ghost few: { count ≤ 64 },
}

impl<'a, R, G> Workers<'a, R, G> {
    /// `count` is how many threads may work at once, with the bounds that `map_items` requires.
    pub fn new(rt: &'a R, gate: &'a G, count: u32) -> Workers<'a, R, G>
        requires some { 1 ≤ count }
        requires few { count ≤ 64 }
        ensures rt { result.rt.now ≡ rt.now }
        ensures gate { result.gate.now ≡ gate.now }
        ensures count { result.count ≡ count }
    {
        Workers { rt, gate, count }
    }
}
