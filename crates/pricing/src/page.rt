// What the page of a year says.
ghost use Rattle.std.specs.Prelude.{◌≡◌, Some, ◌++◌, codes};
ghost use Rattle.std.specs.List.{flat_map, slice_get};
ghost use Rattle.pricing.specs.Printed.{charges_text, left_of, line_text, page_lines, page_text};

use std::fmt;

// The average locational price of a year and the price at each place, in thousandths of a cent per kW; zero past the last
// point, and all zero where no year was opened: by the rules a zero sets no bound, so an `Option` would be no plainer.
#[derive(Clone, Copy)]
pub struct LocationalPrices {
    pub average: u64,
    pub prices: [u64; 64],
}

// The five yearly charges of a connection point, in cents.
#[derive(Clone, Copy)]
pub struct PointCharges {
    pub identifier: u16,
    pub entry: u64,
    pub exit: u64,
    pub locational: u64,
    pub non_locational: u64,
    pub common: u64,
}

// In decimal, on one line: the identifier and the five charges.
impl fmt::Display for PointCharges {
    ghost output = { λ c. Some (charges_text c) };

    fn fmt<W: fmt::Write>(&self, f: &mut fmt::Formatter<W>) -> fmt::Result {
        write!(
            f,
            "{} {} {} {} {} {}",
            self.identifier,
            self.entry,
            self.exit,
            self.locational,
            self.non_locational,
            self.common
        )
    }
}

#[derive(Clone, Copy)]
pub struct Page {
    pub year: u16,
    pub points: usize,
    // By place; an array, since nothing is taken from the heap, and all zero past the last point.
    pub charges: [PointCharges; 64],
    pub locational: LocationalPrices,
    // What is left for the non-locational revenue; below zero, nothing is charged for it.
    pub n1: i64,
    pub non_locational_price: u64,
    pub non_locational_remainder: u64,
    pub common_price: u64,
    pub common_remainder: u64,
}

// In decimal: the year and the number of points, a line for each point, and what both spreads left.
impl fmt::Display for Page {
    ghost output = { λ p. Some (page_text p) };

    fn fmt<W: fmt::Write>(&self, f: &mut fmt::Formatter<W>) -> fmt::Result {
        writeln!(f, "{} {}", self.year, self.points)?;
        for charges in self.charges.iter().take(self.points) {
            writeln!(f, "{charges}")?;
        }
        write!(f, "left {}", self.left())
    }
}

// A line of a page.
#[derive(Clone, Copy)]
pub enum Line {
    Heading { year: u16, points: usize },
    Charges(PointCharges),
    Left(u64),
}

// In decimal, without the end of the line.
impl fmt::Display for Line {
    ghost output = { λ l. Some (line_text l) };

    fn fmt<W: fmt::Write>(&self, f: &mut fmt::Formatter<W>) -> fmt::Result {
        match self {
            Line::Heading { year, points } => write!(f, "{year} {points}"),
            Line::Charges(charges) => write!(f, "{charges}"),
            Line::Left(cents) => write!(f, "left {cents}"),
        }
    }
}

impl Page {
    // What both spreads left, or the largest number where it is more.
    fn left(&self) -> u64
        ensures { result ≡ left_of self.now }
    {
        self.non_locational_remainder
            .saturating_add(self.common_remainder)
    }

    // The line at a place, from 0 on. The lines, each with its end, are the text of the page.
    #[tactic(auto, using(crate::proofs::Lines::whole))]
    pub fn line(&self, place: usize) -> Option<Line>
        ensures line { result ≡ slice_get (page_lines self.now) place }
        ensures text { flat_map (λ l. line_text l ++ codes "\n") (page_lines self.now) ≡ page_text self.now ++ codes "\n" }
    {
        let rows = self.points.min(64);
        match place.checked_sub(1) {
            None => Some(Line::Heading {
                year: self.year,
                points: self.points,
            }),
            Some(row) if row < rows => Some(Line::Charges(self.charges[row])),
            Some(row) if row == rows => Some(Line::Left(self.left())),
            Some(_) => None,
        }
    }
}
