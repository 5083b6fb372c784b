//! The law that a text reads back as a quantum or fusion product if and only if it reads back as a
//! product that is reduced after each factor.

ghost use Rattle.std.specs.Prelude.{◌↔◌, ℕ, ◌+◌, ◌≤◌, List, length};
ghost use Rattle.sym_model.specs.Command.{fusion, quantum};
ghost use Rattle.sym_model.specs.Headline.{ReadsBack};
ghost use Rattle.rim_hooks.specs.PrintedSteps.{ReadsReducedInSteps, ReadsReflectedInSteps};
ghost use Rattle.sym_model.specs.Partition.{ArePartitions};

/// The main statements of the commands `quantum` and `fusion`, with a reduction after each factor:
/// a text can be read as a list of terms that is the answer to the command (`ReadsBack`) if and
/// only if it can be read as a list of terms that results from multiplying by one factor after
/// another and reducing after each factor.
///
/// Example: the answer to `quantum 2 2 1 - 1 - 1 - 1` is the reduction of the classical product,
/// (4) + 3·(3,1) + 2·(2,2). Reducing after each factor gives (2) + (1,1), then 2·(2,1), since (3)
/// reduces to 0, and in the end the same list.
pub fn printed_steps_law()
    ensures quantum { (k columns : ℕ) (factors : List (List ℕ)) (text : List ℕ) → 1 ≤ k
        → 2 ≤ length factors → ArePartitions factors
        → ReadsBack (quantum k columns factors) text
        ↔ ReadsReducedInSteps k (k + columns) factors text }
    ensures fusion { (k level : ℕ) (factors : List (List ℕ)) (text : List ℕ) → 1 ≤ k
        → 2 ≤ length factors → ArePartitions factors
        → ReadsBack (fusion k level factors) text
        ↔ ReadsReflectedInSteps k (k + level) factors text }
{}
