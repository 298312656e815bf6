// Laws of what is told.
ghost use Rattle.std.specs.Prelude.{ℕ, List, Option, [], ◌++◌};
ghost use Rattle.ff_io.specs.Told.{Appended, Gave};

/// The laws of what sources and sinks tell. The function does nothing: its contract is what it is for.
pub fn told_laws()
    ensures nothing_given { (told : Option (List ℕ)) → Gave [] told told }
    ensures given_in_turn { (these those : List ℕ) (old mid new : Option (List ℕ)) →
        Gave these old mid → Gave those mid new → Gave (these ++ those) old new }
    ensures nothing_appended { (told : Option (List ℕ)) → Appended [] told told }
    ensures appended_in_turn { (these those : List ℕ) (old mid new : Option (List ℕ)) →
        Appended these old mid → Appended those mid new → Appended (these ++ those) old new }
{}
