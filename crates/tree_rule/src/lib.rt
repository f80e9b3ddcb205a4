// Wrong leaves of decision trees, by a rule on patterns: whole words, no loop.
#![tactic(auto)]

ghost use Rattle.std.specs.Prelude.{◌≡◌};
ghost use Rattle.tree_rule.specs.Rule.{refuted, filled};

use format::Pattern;

// Whether a pattern q of the table shows that a leaf at the end of path p is wrong: own where the leaf names q, named the pattern of
// what it names, if it names any. Most patterns are apart from the path, so that is tested first.
pub fn shows_wrong(own: bool, p: Pattern, named: Option<Pattern>, q: Pattern) -> bool
    ensures { result ≡ refuted own p named q }
{
    if !patterns::overlaps(p, q) {
        return own;
    }
    if own {
        return !patterns::lies_inside(p, q);
    }
    match named {
        Some(named) => !(patterns::lies_inside(named, q) & !patterns::lies_inside(q, named)),
        None => true,
    }
}

// A path's values at its masked bits, and v's at the other bits of m.
pub fn filled_word(pm: u64, pv: u64, m: u64, v: u64) -> u64
    ensures { result ≡ filled pm pv m v }
{
    (pv & pm) | (((v & m) | pm) ^ pm)
}

// The same for a context.
pub fn filled_context(cm: u32, cv: u32, m: u32, v: u32) -> u32
    ensures { result ≡ filled cm cv m v }
{
    (cv & cm) | (((v & m) | cm) ^ cm)
}
