// A case worked by hand, as a theorem on the definitions that the sheet's contracts cite.
ghost use Rattle.play.specs.Worked.{WorkedCase};

pub fn worked_case_stands()
    ensures answer { WorkedCase }
{}
