// The bindings' words, each of which is a node's number plus one, or 0.
ghost use Rattle.std.specs.Prelude.{◌≡◌};
ghost use Rattle.checks.specs.Checked.{bound_below};

// No binding's word exceeds the mark.
pub fn bindings_below(bindings: &[u32], mark: u32) -> bool
    ensures { result ≡ bound_below bindings.now mark }
{
    bindings.iter().all(|word| *word <= mark)
}
