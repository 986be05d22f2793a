ghost use Rattle.std.specs.Prelude.{◌≡◌, ℕ, ◌<◌, Bool, true, List, length, Result, Ok, Err};
ghost use Rattle.sccs_disk.specs.Files.{Folder};
ghost use Rattle.sccs_disk.specs.Told.{Told};
ghost use Rattle.sccs_steps.specs.Actions.{Action};
ghost use Rattle.sccs_steps.specs.Calls.{Scene};
ghost use Rattle.sccs_steps.specs.Causes.{RunCauses};
ghost use Rattle.sccs_steps.specs.ListStops.{Spares};
ghost use Rattle.sccs_steps.specs.Running.{RunsSteps, Steps};
ghost use Rattle.sccs_steps.specs.Settings.{Setting};
ghost use Rattle.sccs_steps.specs.Speaking.{SpeakBy};
ghost use Rattle.sccs_steps.specs.StepLists.{NamedStep};
ghost use Rattle.sccs_steps.specs.declared.faults.Fault.{Fault};
ghost use Rattle.sccs_step_lists.specs.StepLists.{AllTake, StepLists, Portion, TakesSfiles, follow, nothing};
ghost use Rattle.sccs_step_lists.specs.StepLists.{portion_of, portions_of, saying, steps_along};
ghost use Rattle.sccs_step_lists.specs.Following.{BegunThen, MakesStepList, RunsStepList, StopsStepList};
ghost use Rattle.sccs_step_lists.specs.Following.{UnlockedStepList, WholeBy, WholeThen};
ghost use Rattle.sccs_step_lists.specs.OwnFiles.{MakesOwn, StopsOwn, UnlockedOwn, working_in};
ghost use Rattle.sccs_step_lists.specs.Sayings.{BegunSaid, IsSaid, WholeNothing, WholeSaid};
ghost use Rattle.sccs_step_lists.specs.Tests.{Passes, StatusPasses, StepsPass};

/// A call that follows a list of steps to its end, and one that then follows what its status decides, follow both,
/// one after the other; and one that ended a list of steps early ended what follows it too. What is asked of the
/// input, and what may come over any disk, are given by tests.
pub fn step_lists_follow_one_another()
    ensures ended { (first : StepLists) (rest : ℕ → StepLists) (given given1 given2 : List ℕ → Bool) (whole : ℕ
        → List NamedStep → Bool) (begun : List NamedStep → Bool)
        (whole2 : ℕ → ℕ → List NamedStep → Bool) (begun2 : ℕ → List NamedStep → Bool) (one : ℕ) (r : Result ℕ Fault)
        (s t u : Setting)
        → ((i : List ℕ) → Passes given i → Passes given1 i) → ((i : List ℕ) → Passes given i → Passes given2 i)
        → ((code : ℕ) (folder : Folder) (i : List ℕ) → AllTake (portions_of (rest code) folder i))
        → RunsStepList first (Passes given1) (StatusPasses whole) (StepsPass begun) (Ok one) s t
        → RunsStepList (rest one) (Passes given2) (StatusPasses (whole2 one)) (StepsPass (begun2 one)) r t u
        → RunsStepList (follow first rest) (Passes given) (WholeThen (StatusPasses whole)
        (λ code. StatusPasses (whole2 code))) (BegunThen (StatusPasses whole) (StepsPass begun)
        (λ code. StepsPass (begun2 code))) r s u }
    ensures cut { (first : StepLists) (rest : ℕ → StepLists) (given given1 : List ℕ → Bool) (whole : ℕ → List NamedStep
        → Bool) (begun : List NamedStep → Bool)
        (whole2 : ℕ → ℕ → List NamedStep → Bool) (begun2 : ℕ → List NamedStep → Bool) (fault : Fault) (s t : Setting)
        → ((i : List ℕ) → Passes given i → Passes given1 i) → ((code : ℕ) (folder : Folder) (i : List ℕ)
        → AllTake (portions_of (rest code) folder i))
        → RunsStepList first (Passes given1) (StatusPasses whole) (StepsPass begun) (Err fault) s t
        → RunsStepList (follow first rest) (Passes given) (WholeThen (StatusPasses whole)
        (λ code. StatusPasses (whole2 code))) (BegunThen (StatusPasses whole) (StepsPass begun)
        (λ code. StepsPass (begun2 code))) (Err fault) s t }
{}

/// The steps of one action are a list of steps of one portion, with the status that the action's rule gives.
pub fn one_action_is_a_step_list()
    ensures { (x : Action) (made : Steps) (given : List ℕ → Bool) (whole begun : List NamedStep → Bool) (hearing : Bool)
        (r : Result ℕ Fault) (s t : Setting)
        → TakesSfiles x → RunsSteps x made (Passes given) (SpeakBy x.rule (StepsPass whole) (StepsPass begun)) hearing r
        s t
        → RunsStepList (portion_of x made) (Passes given) (WholeBy x.rule (StepsPass whole)) (StepsPass begun) r s t }
{}

/// A text that is written is a list of steps; so is nothing; and a call that did nothing, before a list of steps of
/// some step, ended it early.
pub fn texts_are_step_lists()
    ensures said { (out err : List ℕ) (code : ℕ) (given : List ℕ → Bool) (r : Result ℕ Fault) (s t : Setting)
        → t.stage.told ≡ s.stage.told → IsSaid out err code r s.stage t.stage → RunCauses r s.faults t.faults
        → RunsStepList (saying out err code) (Passes given) (WholeSaid out err code) (BegunSaid out err) r s t }
    ensures nothing { (code : ℕ) (given : List ℕ → Bool) (begun : List NamedStep → Bool) (s : Setting)
        → RunsStepList (nothing code) (Passes given) (WholeNothing code) (StepsPass begun) (Ok code) s s }
    ensures never { (step_list : StepLists) (given : List ℕ → Bool) (whole : ℕ → List NamedStep → Bool)
        (begun : List NamedStep → Bool) (ts : List NamedStep) (fault : Fault) (s t : Setting)
        → ((folder : Folder) (i : List ℕ) → AllTake (portions_of step_list folder i)) → ((folder : Folder) (i : List ℕ)
        → 0 < length (steps_along step_list folder i)) → begun ts ≡ true
        → t.stage ≡ s.stage → RunCauses (Err fault) s.faults t.faults → RunsStepList step_list (Passes given)
        (StatusPasses whole) (StepsPass begun) (Err fault) s t }
{}

/// What a call says for any working files it says for those of the names of its own steps, which are no s-files,
/// p-files or z-files.
pub fn own_working_files_are_spared()
    ensures spares { (ps : List Portion) → Spares (working_in ps) }
    ensures makes { (step_list : StepLists) (given : List ℕ → Bool) (r : Result ℕ Fault) (a b : Scene)
        → MakesStepList step_list (Passes given) r a b → MakesOwn step_list (Passes given) r a b }
    ensures stops { (step_list : StepLists) (given : List ℕ → Bool) (r : Result ℕ Fault) (a b : Scene)
        → StopsStepList step_list (Passes given) r a b → StopsOwn step_list (Passes given) r a b }
    ensures unlocked { (step_list : StepLists) (given : List ℕ → Bool) (old new : Told) → UnlockedStepList step_list
        (Passes given) old new → UnlockedOwn step_list (Passes given) old new }
{}
