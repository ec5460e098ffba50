// Worked examples of the rules, as one table that is proved of the definitions and not of any code.
#![tactic(auto)]

ghost use Rattle.std.specs.Prelude.{◌≡◌, length};
ghost use Rattle.examples.specs.Table.{WorkedExamples, resolving_examples};

// How many examples the table has; every one of them holds.
#[tactic(auto, using(crate::proofs::Holding::worked_examples))]
pub fn worked_examples() -> usize
    ensures counted { result ≡ length resolving_examples }
    ensures hold { WorkedExamples }
{
    6
}
