// A checked year: one that keeps every limit, or the empty one, which has no points.
ghost use Rattle.agreement.specs.Data.{Few};
ghost use Rattle.agreement.specs.Limits.{Distinct, Named, Rising, Within, UsedWithin, Priced};
ghost use Rattle.year.specs.Contents.{data_of};
ghost use Rattle.year.specs.Ranges.{Counted, Figures, Dated, Identified, Rated, Blank};

use crate::lists::Lists;

#[derive(Drop)]
pub struct Year {
    // The empty year is lists without records, and no None, so that their room stays.
    pub(crate) held: Lists,
    // Where the next file is taken in, until it is found to be sound.
    pub(crate) draft: Lists,
    ghost few: { Few (data_of held) },
    ghost counted: { Counted (data_of held) },
    ghost figures: { Figures (data_of held) },
    ghost dated: { Dated (data_of held) },
    ghost identified: { Identified (data_of held) },
    ghost rated: { Rated (data_of held) },
    ghost distinct: { Distinct (data_of held).points },
    ghost named: { Named (data_of held) },
    ghost rising: { Rising (data_of held).uses },
    ghost within: { Within (data_of held) },
    ghost used: { UsedWithin (data_of held) },
    ghost priced: { Priced (data_of held) },
    ghost blank: { Blank (data_of held) },
}
