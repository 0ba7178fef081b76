//! What tells which pairs a command keeps: a trait of its own, since the borrow checker doesn't
//! cover a closure that calls a function of a type that is a parameter.
ghost use Rattle.std.specs.Borrow.{Bor, MutBor};
ghost use Rattle.std.specs.Prelude.{Bool};
ghost use Rattle.multimap_tool.specs.Step.{MayKeep};

/// Decides which pairs stay.
pub(crate) trait Keep<K, V>: Drop {
    /// It may be asked for this operand, whatever the key and the value.
    ghost accepts: { Self → V → Type 0 };

    /// Asked for an operand, a key and a value, it may return this, and leave this value.
    ghost answers: { Self → V → K → V → Bool → V → Type 0 };

    /// Whether the pair stays. It may write the value.
    fn keeps(&self, operand: V, key: &K, value: &mut V) -> bool
        requires { accepts self.now operand }
        ensures { answers self.now operand key.now value.old result value.new };
}

impl<K, V, F: Fn(V, &K, &mut V) -> bool + Drop> Keep<K, V> for F {
    ghost accepts = { λ f operand. (key : Bor K) (value : MutBor V) → F.pre f operand key value };

    ghost answers = { MayKeep F.Fn };

    fn keeps(&self, operand: V, key: &K, value: &mut V) -> bool {
        self(operand, key, value)
    }
}
