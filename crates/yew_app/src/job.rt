//! A job whose answer a search finds: what a further one has to say and to prove.

ghost use Rattle.std.specs.Prelude.{◌≡◌, ◌≤◌, true, List, ℕ, IfSome, IfOk, IfErr, IsErrAnd, Some};
ghost use Rattle.yew_io.specs.Faults.{Rose};
ghost use Rattle.yew_kinds.specs.Kinds.{IsKindInRange};
ghost use Rattle.yew_laws.specs.Fold.{Fold};
ghost use Rattle.yew_laws.specs.SearchTree.{search_tree};
ghost use Rattle.yew_app.specs.Meanings.{Meaning, known_files, IsUnreadable};
ghost use Rattle.yew_app.specs.Reasons.{reason_of};
ghost use Rattle.yew_app.specs.Refusals.{CannotRead};
ghost use Rattle.yew_app.specs.Solutions.{IsSolution, node_of};

use crate::refusal::Refusal;
use crate::solution::Solution;
use std::alloc::Global;
use yew_io::Shelf;
use yew_kinds::{Kind, Tally};
use yew_laws::{Memory, Problem};

/// A job whose answer a search finds: what it means, and what stands behind the search, from what was found to the lines
/// of the answer. The report, the audit and the text of each are made and proved once for all jobs.
pub(crate) trait SearchJob {
    /// The instances, whose trees are searched.
    type Instance: Problem + Drop;

    /// What is counted.
    type Tally: Tally<<Self::Instance as Problem>::Node> + Drop;

    /// What the job means.
    ghost meaning: { Self → Meaning Self.Instance Self.Instance.Node };

    /// What is counted.
    ghost counts: { Self → Self.Tally };

    /// What holds of an instance that was read: it is within its limits.
    ghost fit: { Self → Self.Instance → Type 0 };

    /// What is searched for.
    fn kind(&self) -> Kind
        ensures kind { result ≡ (meaning self.now).kind }
        ensures range { IsKindInRange result };

    /// What is counted.
    fn tally(&self) -> Self::Tally
        ensures { result ≡ counts self.now };

    /// The lines of what a search of the tree has found.
    ///
    /// # Errors
    ///
    /// Memory ran out.
    fn lines(
        &self,
        alloc: Global,
        problem: &Self::Instance,
        solution: &Solution<
            <Self::Instance as Problem>::Node,
            <Self::Tally as Tally<<Self::Instance as Problem>::Node>>::Sum,
        >,
    ) -> Result<Vec<u8>, Memory>
        requires root { Self.Instance.sound problem.now (Self.Instance.root problem.now) }
        requires fit { fit self.now problem.now }
        requires solution { let t = (meaning self.now).tree problem.now in
            let fold = Fold t (Self.Tally.join (counts self.now)) (Self.Tally.none (counts self.now)) (Self.Tally.of (counts self.now)) in
            IsSolution t (Self.Instance.sound problem.now) fold (meaning self.now).kind solution.now }
        ensures lines { IfOk result (λ lines. lines.items ≡ (meaning self.now).lines problem.now (node_of solution.now)) }
        ensures right { IfOk result (λ lines. (meaning self.now).IsRight problem.now lines.items) };

    /// The tree is that of the problem.
    ghost tree_is: { (job : Self) (problem : Self.Instance) → (meaning job).tree problem ≡ search_tree Self.Instance.Problem problem };
}

/// What stands before the search of a job: from the bytes of its files, which a shelf gives, to an instance.
pub(crate) trait ReadJob<'a, S: Shelf<'a>>: SearchJob {
    /// Reads the files, each after those before it, to an instance whose root is sound.
    ///
    /// # Errors
    ///
    /// The first file at which the shelf fails or that is refused, or that memory ran out.
    fn read(&self, alloc: Global, shelf: &mut S) -> Result<Self::Instance, Refusal<'a>>
        ensures read { let m = Self.meaning self.now in
            IfOk result (λ problem. IfSome (known_files m.names (S.files shelf.old)) (λ told. m.Reads told problem)) }
        ensures root { IfOk result (λ problem. Self.Instance.sound problem (Self.Instance.root problem)) }
        ensures fit { IfOk result (λ problem. Self.fit self.now problem) }
        ensures refused { let m = Self.meaning self.now in
            IfErr result (λ refusal. IsUnreadable m (known_files m.names (S.files shelf.old)) (reason_of refusal)) }
        ensures read_fault { (name : List ℕ) → IsErrAnd result (λ refusal. reason_of refusal ≡ CannotRead name) →
            Rose (S.faults shelf.old) (S.faults shelf.new) × (S.failed shelf.new ≡ true) × (S.name shelf.new ≡ Some name) }
        ensures files { S.files shelf.new ≡ S.files shelf.old }
        ensures counted { S.faults shelf.old ≤ S.faults shelf.new };
}
