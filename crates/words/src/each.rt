// Tests of all numbers below one.
ghost use Rattle.std.specs.Prelude.{◌≡◌, ℕ, Bool, ◌<◌};
ghost use Rattle.semantics.specs.Bytes.{every};

// Whether the test holds of each number below n.
pub fn every<F: Fn(usize) -> bool>(n: usize, test: F) -> bool
    requires { (k : ℕ) → k < n → F.pre test k }
    ensures { (holds : ℕ → Bool) → ((k : ℕ) → (r : Bool) → k < n → F.post test k r → r ≡ holds k) → result ≡ every n holds }
{
    (0..n).all(test)
}
