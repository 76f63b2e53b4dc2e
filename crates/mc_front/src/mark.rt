// The dirty mark.
ghost use Rattle.std.specs.Prelude.{◌≡◌, ◌==◌, not, IfSome, unwrap_or, if◌then◌else◌};

// The change of the mark by the number of gaps, where it changes: where every gap is wanted it is set exactly where
// there is one, and else it stays.
pub(crate) fn mark_change(whole: bool, gaps: u64, mark: bool) -> Option<bool>
    ensures after { unwrap_or result mark ≡ (if whole then not (gaps == 0) else mark) }
    ensures changes { IfSome result (λ new. new ≡ not mark) }
{
    let new = if whole { gaps != 0 } else { mark };
    if new == mark { None } else { Some(new) }
}
