//! Which goals a round has.

ghost use Rattle.std.specs.Prelude.{◌≡◌};
ghost use Rattle.js_rounds.specs.Seen.{seen};

/// For each goal the least round that has it, and the first alternative that the round before meets.
pub(crate) type Answer = Option<(u32, u32)>;

/// Whether a round has a goal.
pub(crate) fn has(known: &[Answer], goal: u32, round: u32) -> bool
    ensures { result ≡ seen known.now round goal }
{
    match known.get(goal as usize) {
        Some(Some((least, _))) => *least <= round,
        _ => false,
    }
}
