// The figures of the bench, as a theorem: the contract of a function that does nothing.
#![tactic(auto)]

ghost use Rattle.std.specs.Prelude.{◌≡◌, map};
ghost use Rattle.bench_figures.specs.Figures.{figures};

// Each row of the table computes to the number that is expected.
pub fn bench_figures()
    ensures { map (λ f. f.got) figures ≡ map (λ f. f.expected) figures }
{}
