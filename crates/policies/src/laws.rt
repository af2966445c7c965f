// The functions of this file carry the laws of the chart and the allowance: each law is a contract.
ghost use Rattle.policies.specs.AllowanceLaws.{PassesAsOftenAsGiven};
ghost use Rattle.policies.specs.ChartLaws.{OneArrowDrawn};

// Drawing draws one arrow and leaves every other as it was.
pub fn drawing_stands()
    ensures { OneArrowDrawn }
{}

// An allowance passes a method's befores exactly as often as the method was given.
pub fn allowance_stands()
    ensures { PassesAsOftenAsGiven }
{}
