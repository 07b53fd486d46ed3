// The calls of a run: dealing begins it, each stage takes it one radix on, and finishing or giving up ends it.
ghost use Rattle.std.specs.Prelude.{◌≡◌, ◌*◌, ◌<◌, length, replicate, IfOk};
ghost use Rattle.plan.specs.Radices.{size};
ghost use Rattle.plan.specs.Dealing.{dealt};
ghost use Rattle.plan.specs.Planned.{radices_of};
ghost use Rattle.spectra.specs.Stages.{staged};
ghost use Rattle.runs.specs.Runs.{seen, as_seen, IsHeld, next_radix, part_size, begun, fresh, ready as ready_for, onward, stepped, finished, resumed};
ghost use Rattle.spectrum.specs.Granted.{where_granted, cleared};

use super::Run;
use arithmetic::Arithmetic;
use plan::Plan;
use refusal::Fault;

// `held` stands by each call that hands a run out: a run that was ended is a run too, so its type cannot say it.
impl Run {
    // The run of a plan, with every stage left.
    fn begin(plan: Plan) -> Run
        ensures answer { seen result ≡ fresh (radices_of plan) }
        ensures held { IsHeld result }
    {
        Run {
            plan,
            left: plan.radices().len(),
            part: 1,
            turns: 0,
            ended: false,
        }
    }

    // Refuses a stage that cannot be taken.
    fn ready<X: Arithmetic>(&self, buf: usize, work: usize) -> Result<(), Fault>
        ensures answer { result ≡ ready_for X.Arithmetic.meaning.span self.now buf work }
    {
        spectrum::granted::<X>(&self.plan, buf, work)?;
        if self.left == 0 {
            return Err(Fault::NoStage);
        }
        Ok(())
    }

    // The radix whose stage is next.
    fn radix(&self) -> u8
        requires { 0 < self.now.left }
        ensures answer { result ≡ next_radix self.now }
    {
        self.plan.radices()[self.left - 1]
    }

    // The run after the stage of this radix, which made these turns.
    fn step(mut self, radix: u8, made: usize) -> Run
        requires left { 0 < self.left }
        requires radix { radix ≡ next_radix self }
        requires turns { made ≡ size (radices_of self.plan) * radix }
        ensures answer { seen result ≡ onward self }
        ensures held { IsHeld self → IsHeld result }
    {
        self.left -= 1;
        self.part *= u32::from(radix);
        self.turns += made;
        self
    }

    // Deals the samples in `buf`, and begins the run that makes tones of them.
    // A refusal changes nothing, and a granted call leaves zeros in `work`.
    pub fn deal<X: Arithmetic>(radices: &[u8], buf: &mut [X], work: &mut [X]) -> Result<Run, Fault>
        ensures answer { as_seen result ≡ begun X.Arithmetic.meaning.span radices.now (length buf.old) (length work.old) (fresh radices.now) }
        ensures held { IfOk result IsHeld }
        ensures after { buf.new ≡ where_granted result (dealt X.Arithmetic.meaning.zero radices.now buf.old) buf.old }
        ensures work { work.new ≡ cleared X.Arithmetic.meaning result work.old }
    {
        let plan = spectrum::deal(radices, buf, work)?;
        Ok(Run::begin(plan))
    }

    // The run under these radices with so many stages done, or all where there are fewer: for a caller that cannot hold
    // a run itself, and holds these numbers instead.
    pub fn resume(radices: &[u8], done: usize) -> Result<Run, Fault>
        ensures answer { as_seen result ≡ resumed radices.now done }
        ensures held { IfOk result IsHeld }
    {
        let plan = Plan::new(radices)?;
        let mut run = Run::begin(plan);
        let count = done.min(run.left);
        for _i in 0..count {
            let radix = run.radix();
            let made = plan.len() * usize::from(radix);
            run = run.step(radix, made);
        }
        Ok(run)
    }

    // The next stage, on whatever `buf` holds. A refusal hands the run back and changes nothing, and a granted call
    // leaves zeros in `work`.
    // The run and the fault go back as a pair: a struct would only name what their types say.
    pub fn stage<X: Arithmetic>(self, buf: &mut [X], work: &mut [X]) -> Result<Run, (Run, Fault)>
        ensures answer { as_seen result ≡ stepped X.Arithmetic.meaning.span self (length buf.old) (length work.old) }
        ensures held { IsHeld self → IfOk result IsHeld }
        ensures after { buf.new ≡ where_granted result (staged X.Arithmetic.meaning (next_radix self) (part_size self) buf.old) buf.old }
        ensures work { work.new ≡ cleared X.Arithmetic.meaning result work.old }
    {
        if let Err(fault) = self.ready::<X>(buf.len(), work.len()) {
            return Err((self, fault));
        }
        let radix = self.radix();
        let made = spectrum::stage(radix, self.part, buf, work).unwrap();
        Ok(self.step(radix, made))
    }

    // The turns that the stages made. Where a stage is left, the run is handed back.
    pub fn finish(self) -> Result<usize, (Run, Fault)>
        ensures answer { result ≡ finished self }
    {
        if self.left > 0 {
            return Err((self, Fault::StagesLeft));
        }
        Ok(self.spend())
    }

    // Ends the run with any number of stages left, and leaves zeros in the buffer, of whatever length.
    pub fn give_up<X: Arithmetic>(self, buf: &mut [X])
        ensures after { buf.new ≡ replicate (length buf.old) X.Arithmetic.meaning.zero }
    {
        self.spend();
        spectrum::clear(buf);
    }
}
