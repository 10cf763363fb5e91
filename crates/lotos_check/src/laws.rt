//! Laws of the definitions, each as the contract of an empty function.
ghost use Rattle.std.specs.Prelude.{◌≡◌, ◌<◌, ◌↔◌, ℕ, List, Some, length, slice_get};
ghost use Rattle.lotos_text.specs.AstView.{DefinitionView, body_of};
ghost use Rattle.lotos_check.specs.NameLists.{In, Name};
ghost use Rattle.lotos_check.specs.Scope.{IsDistinctScope, Binds, Scope, ScopedDefinition, all_definitions};
ghost use Rattle.lotos_check.specs.StaticFaults.{IsDistinct};
ghost use Rattle.lotos_check.specs.Bodies.{GoesToNamed, ContainsCall, IsBodyOf, AreDistinctNames};
ghost use Rattle.lotos_check.specs.UsedGates.{UsesOnly};
ghost use Rattle.lotos_check.specs.Acceptance.{AreRanks, IsAccepted, IsStaticFault, IsNotAccepted};
ghost use Rattle.lotos_check.specs.Flat.{Flat, FlatProcess, IsFlat, Resolves, System};
ghost use Rattle.lotos_check.specs.HiddenGates.{IsHiddenIn};
ghost use Rattle.lotos_check.specs.Guard.{Calls, IsRanking, IsUnguardedSet};
ghost use Rattle.lotos_check.specs.declared.fault.CheckFault.{CheckFault};

/// A name has one binding if no `where` declares a name twice.
pub fn binding_is_unique()
    ensures { (scope : Scope) → IsDistinctScope scope → (n : Name) (i j : ℕ) (d e : DefinitionView) →
        Binds scope n i d → Binds scope n j e → (i ≡ j) × (d ≡ e) }
{}

/// If each process of a nonempty set has an unguarded call into the set, no ranks decrease at every unguarded call.
pub fn unguarded_unranked()
    ensures { (processes : List FlatProcess) (set : List ℕ) (rank : ℕ → ℕ) (p : ℕ) →
        IsUnguardedSet processes set → In p set → IsRanking processes rank → ⊥ }
{}

/// A specification whose names are distinct has one flat system.
pub fn flat_system_is_unique()
    ensures { (whole : DefinitionView) (s r : System) → IsDistinct whole → IsFlat whole s → IsFlat whole r →
        s ≡ r }
{}

/// In a flat system every unguarded call goes to an existing process.
pub fn calls_in_range()
    ensures { (whole : DefinitionView) (s : System) → IsFlat whole s → (p q : ℕ) → Calls s.processes p q →
        q < length s.processes }
{}

/// Every call in an accepted specification goes to an existing process, with as many gates as that has formal ones. A
/// call in the body of a definition comes from a call by name, and its process has the name and the formal gates of the
/// definition that the name is bound to.
pub fn calls_fit()
    ensures fit { (whole : DefinitionView) (s : System) → IsAccepted whole s → (b : Flat) → IsBodyOf s b →
        (k : ℕ) (gates : List Name) → ContainsCall b k gates → (process : FlatProcess)
        × (slice_get s.processes k ≡ Some process) × (length gates ≡ length process.formals) }
    ensures named { (whole : DefinitionView) (s : System) → IsAccepted whole s → (v : ScopedDefinition) →
        In v (all_definitions whole) → (b : Flat) → Resolves v.scope (body_of v.definition) b →
        (k : ℕ) (gates : List Name) → ContainsCall b k gates → GoesToNamed s v k gates }
{}

/// The behaviour of an accepted specification uses only the formal gates of the specification and gates that it hides,
/// and the body of each of its processes only those of the process and gates that it hides.
pub fn bodies_use_formal_gates()
    ensures specification { (whole : DefinitionView) (s : System) → IsAccepted whole s →
        UsesOnly s.formals s.start }
    ensures processes { (whole : DefinitionView) (s : System) → IsAccepted whole s →
        (p : ℕ) (process : FlatProcess) → slice_get s.processes p ≡ Some process →
        UsesOnly process.formals process.body }
{}

/// The formal gates of an accepted specification, and those of each of its processes, are distinct.
pub fn distinct_formals()
    ensures specification { (whole : DefinitionView) (s : System) → IsAccepted whole s →
        AreDistinctNames s.formals }
    ensures processes { (whole : DefinitionView) (s : System) → IsAccepted whole s →
        (p : ℕ) (process : FlatProcess) → slice_get s.processes p ≡ Some process →
        AreDistinctNames process.formals }
{}

/// A system with these gates hidden around its behaviour is one system.
pub fn hidden_system_is_unique()
    ensures { (gates : List Name) (s h k : System) → IsHiddenIn gates s h → IsHiddenIn gates s k → h ≡ k }
{}

/// The formal gates of a system with hidden gates are those of the system that are not hidden.
pub fn formals_are_not_hidden()
    ensures { (gates : List Name) (s h : System) → IsHiddenIn gates s h → (n : Name) →
        In n h.formals ↔ (In n s.formals × (In n gates → ⊥)) }
{}

/// Given ranks of a flat system's processes, both processes of an unguarded call have one, and that of the called one
/// is smaller.
pub fn ranks_fall()
    ensures { (whole : DefinitionView) (s : System) (ranks : List ℕ) → IsFlat whole s →
        AreRanks s.processes ranks → (p q : ℕ) → Calls s.processes p q → (r t : ℕ)
        × (slice_get ranks p ≡ Some r) × (slice_get ranks q ≡ Some t) × (t < r) }
{}

/// A specification with a static fault is not accepted.
pub fn faulty_is_refused()
    ensures { (whole : DefinitionView) (fault : CheckFault) → IsStaticFault whole fault →
        IsNotAccepted whole fault }
{}
