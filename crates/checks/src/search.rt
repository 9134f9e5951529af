// The search that every check makes: the lowest number that a test rejects.
ghost use Rattle.std.specs.Prelude.{◌≡◌, ℕ, Bool, ◌<◌};
ghost use Rattle.words.specs.Tests.{rejected};
ghost use Rattle.checks.specs.Checked.{place_of};

// The lowest number below n that the test rejects.
pub fn lowest<F: Fn(u32) -> bool>(n: u32, good: F) -> Option<u32>
    requires { (k : ℕ) → k < n → F.pre good k }
    ensures { (p : ℕ → Bool) → ((k : ℕ) (b : Bool) → k < n → F.post good k b → b ≡ p k) → place_of result ≡ rejected p 0 n }
{
    for k in 0..n {
        if !good(k) {
            return Some(k);
        }
    }
    None
}
