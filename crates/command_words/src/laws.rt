//! What some command lines give. Each law stands in the contract of a function that does nothing.

ghost use Rattle.std.specs.Prelude.{◌≡◌, Some, codes, pos, [], ◌∷◌};
ghost use Rattle.command_words.specs.Given.{AreRefused, AreTaken, IsNumber, value_of};

/// A script's users may stand before or behind the command, with or without `=`.
pub fn users_stand_anywhere()
    ensures taken { AreTaken (codes "script" ∷ codes "--users" ∷ codes "A,B" ∷ []) }
    ensures users { value_of (codes "users") (codes "script" ∷ codes "--users" ∷ codes "A,B" ∷ []) ≡ Some (codes "A,B") }
    ensures before { AreTaken (codes "--users=A,B" ∷ codes "script" ∷ []) }
    ensures users_before { value_of (codes "users") (codes "--users=A,B" ∷ codes "script" ∷ []) ≡ Some (codes "A,B") }
{}

/// A number may have a sign and zeros in front; what isn't given has its default.
pub fn numbers_may_have_a_sign()
    ensures port { IsNumber (codes "port") (codes "serve" ∷ codes "--users" ∷ codes "A" ∷ codes "--port" ∷ codes "+0080" ∷ []) 80 }
    ensures default { IsNumber (codes "port") (codes "serve" ∷ codes "--users" ∷ codes "A" ∷ []) 7003 }
{}

/// Words without users, a call for help, an unknown option, and an option that comes twice are refused.
pub fn some_words_are_refused()
    ensures no_users { AreRefused (codes "script" ∷ []) }
    ensures help { AreRefused (codes "script" ∷ codes "--users" ∷ codes "A" ∷ codes "--help" ∷ []) }
    ensures unknown { AreRefused (codes "script" ∷ codes "--users" ∷ codes "A" ∷ codes "--user" ∷ codes "B" ∷ []) }
    ensures twice { AreRefused (codes "script" ∷ codes "--users" ∷ codes "A" ∷ codes "--users" ∷ codes "A" ∷ []) }
    ensures no_port { AreRefused (codes "serve" ∷ codes "--users" ∷ codes "A" ∷ codes "--port" ∷ codes "0" ∷ []) }
{}
