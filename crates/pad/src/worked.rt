// Cases worked by hand, as theorems on the definitions that the contracts cite.
ghost use Rattle.pad.specs.Worked.{WorkedCases};

pub fn worked_cases_stand()
    ensures answer { WorkedCases }
{}
