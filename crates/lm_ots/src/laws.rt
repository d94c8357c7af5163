// What holds of signatures whatever the values.

ghost use Rattle.std.specs.Prelude.{◌≡◌, ◌^◌, ◌<◌, ℕ, List, length};
ghost use Rattle.lm_ots.specs.declared.ots_type.OtsType.{OtsType};
ghost use Rattle.lm_ots.specs.OneTime.{IsOfType, candidate_value, public_value, signature_of};

/// What [`sign`](crate::sign) writes is a signature of its type, and leads to the public value of
/// [`public_of`](crate::public_of).
pub fn own_signature()
    ensures form { (kind : OtsType) (ident seed c msg : List ℕ) (q : ℕ) → length c ≡ 32
        → IsOfType kind (signature_of kind ident q seed c msg) }
    ensures value { (kind : OtsType) (ident seed c msg : List ℕ) (q : ℕ) → length c ≡ 32
        → candidate_value kind ident q msg (signature_of kind ident q seed c msg) ≡ public_value kind ident q seed }
{}
