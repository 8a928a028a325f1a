ghost use Rattle.std.specs.Prelude.{◌≡◌, ◌≤◌, ℕ, List, [], ◌∷◌, ◌++◌, IfOk, OnOk, OnErr};
ghost use Rattle.p9_word.specs.declared.answer.Answer.{Answer};
ghost use Rattle.p9_word.specs.declared.request.Request.{Request};

use crate::{Answer, NoMemory, Request};

/// A thread's code: it gets the answer of its last request, and makes the next one.
///
/// Its plan says which request it makes after which answers. It stands for the list of answers that it
/// was given so far, which it needn't store.
pub trait Body {
    /// The request that this body makes after these answers. No call changes it.
    ghost plan: { Self → List Answer → Request };

    /// The lists of answers for which the body stands now.
    ghost stands_for: { Self → List Answer → Type 0 };

    /// The request after one more answer, which is `Done` the first time. Where memory is wanted the body
    /// stands for what it stood for.
    fn next(&mut self, last: Answer) -> Result<Request, NoMemory>
        ensures plan { plan self.new ≡ plan self.old }
        ensures request { (answers : List Answer) → stands_for self.old answers
            → IfOk result (λ r. r ≡ plan self.old (answers ++ last ∷ [])) }
        ensures stands { (answers : List Answer) → stands_for self.old answers → OnOk result (stands_for self.new (answers ++ last ∷ [])) }
        ensures refused { (answers : List Answer) → stands_for self.old answers → OnErr result (stands_for self.new answers) };
}

/// The programs that threads are started with, numbered from 1.
pub trait Programs {
    /// The code of one thread.
    type B: Body + Send + Drop;

    /// How many programs there are.
    ghost programs: { Self → ℕ };

    /// The request that a program makes, by its number, its argument and the answers so far.
    ghost asks: { Self → ℕ → ℕ → List Answer → Request };

    /// A body of a program that has had no answer yet.
    fn start(&self, program: u32, arg: u64) -> Result<Self::B, NoMemory>
        requires low { 1 ≤ program }
        requires high { program ≤ programs self.now }
        ensures plan { IfOk result (λ b. Self.B.plan b ≡ asks self.now program arg) }
        ensures stands { IfOk result (λ b. Self.B.stands_for b []) };
}
