// A transform under way, one stage at a poll. The calls whose clauses cite what a run is stand in a module below.
ghost use Rattle.std.specs.Prelude.{◌≡◌, ◌*◌, ◌≤◌, IsTrue, length, drop};
ghost use Rattle.plan.specs.Radices.{size, radix_sum};
ghost use Rattle.plan.specs.Planned.{radices_of};

use plan::Plan;

mod stepping;

// A token of plain numbers: it holds no part of the buffer, which its caller lends to each stage.
pub struct Run {
    plan: Plan,
    // How many stages are left: those of the first radices.
    left: usize,
    // The product of the radices whose stages are done, kept so that no stage multiplies it out again.
    part: u32,
    // The turns that those stages made.
    turns: usize,
    // Whether it was ended, so that it may be let go. A type without a drop would say the same, but by a rule of the project
    // each promise has an edit that is refused for a fact, and a run that is forgotten would then only not build.
    ended: bool,
    ghost stages: { left ≤ length (radices_of plan) },
    ghost parts: { part ≡ size (drop left (radices_of plan)) },
    ghost turned: { turns ≡ size (radices_of plan) * radix_sum (drop left (radices_of plan)) },
}

impl Run {
    // How many stages are left.
    pub fn left(&self) -> usize
        ensures answer { result ≡ self.now.left }
    {
        self.left
    }

    // Ends the run. What is left of it are the turns.
    fn spend(mut self) -> usize
        ensures answer { result ≡ self.turns }
    {
        self.ended = true;
        self.turns
    }
}

impl Drop for Run {
    // A run that is still held is not spent: only finishing and giving up spend one, and no other way to let it go is
    // proved.
    fn drop(self)
        requires { IsTrue self.ended }
    {
        // Each field by its name: with `..` in their place the check takes the run to be let go whole, by this call again.
        let Run {
            plan: _,
            left: _,
            part: _,
            turns: _,
            ended: _,
        } = self;
    }
}
