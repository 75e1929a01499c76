//! Laws of the definitions: each the contract of a function with an empty body.

ghost use Rattle.std.specs.Prelude.{◌≡◌, ℕ, List, Result};
ghost use Rattle.iiif_request.specs.Spells.{Texts, SpellsRequest, Says};
ghost use Rattle.iiif_request.specs.Targets.{Resource, AsksFor};
ghost use Rattle.iiif_request.specs.declared.request.Request.{Request};
ghost use Rattle.iiif_request.specs.declared.request.Refusal.{Refusal};

/// Proves that words spell at most one request.
pub fn spelled_once()
    ensures { (w : Texts) (q r : Request) → SpellsRequest w q → SpellsRequest w r → q ≡ r }
{}

/// Proves that words say one thing: a request, or one refusal.
pub fn says_once()
    ensures { (w : Texts) (a b : Result Request Refusal) → Says w a → Says w b → a ≡ b }
{}

/// Proves that a target asks for at most one resource.
pub fn asked_once()
    ensures { (prefix target : List ℕ) (r s : Resource) → AsksFor prefix target r
        → AsksFor prefix target s → r ≡ s }
{}
