// The one interface behind which every arithmetic stands, and the laws that each shows.
#![tactic(auto)]

ghost use Rattle.std.specs.Prelude.{◌≡◌};
ghost use Rattle.arithmetic.specs.Meaning.{Meaning};
ghost use Rattle.arithmetic.specs.Laws.{Lawful};

// Elements are plain words that may lie in lent memory, so no operation refuses any of them.
pub trait Arithmetic: Copy {
    // What an element is read as.
    type Reading;

    ghost meaning: { Meaning Self Self.Reading };

    fn zero() -> Self
        ensures { result ≡ meaning.zero };

    fn sum(self, other: Self) -> Self
        ensures { result ≡ meaning.sum self other };

    fn difference(self, other: Self) -> Self
        ensures { result ≡ meaning.difference self other };

    // Turns by e of the span's steps round the circle.
    fn turn(self, e: u32) -> Self
        ensures { result ≡ meaning.turn self e };

    fn product(self, other: Self) -> Self
        ensures { result ≡ meaning.product self other };

    // One of n equal parts.
    fn part(self, n: u32) -> Self
        ensures { result ≡ meaning.part self n };

    fn read(self) -> Self::Reading
        ensures { result ≡ meaning.reading self };

    fn span() -> u32
        ensures { result ≡ meaning.span };

    // Whether sums are exact, and below whether there is a product and a part: asked at run time, since a call over any
    // arithmetic refuses one that is not what it needs. Traits of their own would leave no such call to refuse.
    fn exact() -> bool
        ensures { result ≡ meaning.exact };

    fn full() -> bool
        ensures { result ≡ meaning.full };

    ghost lawful: { Lawful meaning };
}
