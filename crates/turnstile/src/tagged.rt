// What a turnstile holds, and what works on it.
ghost use Rattle.std.specs.Prelude.{◌≡◌, ℕ, ◌^◌, ◌<◌, Bool, true, false, List, length};
ghost use Rattle.turnstile.specs.History.{Appends};

/// A value with a tag, which never changes in a turnstile, and a history, which only grows.
///
/// Each entry of the history names one pass by its number.
pub trait Tagged: Drop {
    type Tag;

    type Entry;

    /// The tag.
    ghost tag: { Self → Self.Tag };

    /// The history.
    ghost history: { Self → List Self.Entry };

    /// The number of the pass that an entry names, under a tag.
    ghost names: { Self.Tag → Self.Entry → ℕ };

    /// The length of the history, in entries.
    fn entries(&self) -> u64
        ensures count { result ≡ length (history self.now) }
        ensures few { result < 2 ^ 63 };
}

/// One piece of work of a pass on the value.
pub trait Act<T: Tagged> {
    /// Whether it is done.
    ghost is_done: { Self → Bool };

    /// The number of the pass whose act it is.
    ghost number: { Self → ℕ };

    /// What the act makes of itself and of the value: the act and the value before, and both after.
    ghost does: { Self → T → Self → T → Type 0 };

    /// Works on the value once. At most one entry joins the history, and it names the act's pass.
    fn act(&mut self, value: &mut T)
        requires { is_done self.old ≡ false }
        ensures done { is_done self.new ≡ true }
        ensures number { number self.new ≡ number self.old }
        ensures tag { T.tag value.new ≡ T.tag value.old }
        ensures history { Appends (T.names (T.tag value.old)) (number self.old)
            (T.history value.old) (T.history value.new) }
        ensures does { does self.old value.old self.new value.new };
}
