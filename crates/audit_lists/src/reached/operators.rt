ghost use Rattle.std.specs.Prelude.{◌≡◌, ◌≢◌, false, true};

use office_rules::Operator;

#[tactic(auto, using(crate::proofs::TextLemmas::text_same, crate::proofs::TextLemmas::text_other))]
pub(crate) fn is_same(a: &Operator, b: &Operator) -> bool
    ensures yes { result ≡ true → a.now ≡ b.now }
    ensures no { result ≡ false → a.now ≢ b.now }
{
    a.as_bytes() == b.as_bytes()
}
