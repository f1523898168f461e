//! What a job means.

ghost use Rattle.std.specs.Prelude.{ℕ};
ghost use Rattle.proxy_laws.specs.declared.records.Mark.{Mark};

/// A type of jobs. It gives each job a meaning, which is plain data, and says which meanings suit a mark at a place of
/// a target.
pub trait Meant {
    type Meaning;

    ghost meaning: { Self → Self.Meaning };

    // Of a target, a place, the mark and the meaning.
    ghost suits: { ℕ → ℕ → Mark → Self.Meaning → Type 0 };
}

/// A number means itself, and suits every mark.
impl Meant for u64 {
    type Meaning = u64;

    ghost meaning = { λ n. n };

    ghost suits = { λ target place mark n. Unit {0} };
}
