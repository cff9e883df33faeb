ghost use Rattle.std.specs.Prelude.{◌≡◌, ◌↔◌, IsSome, IfSome, ◌⊎◌};
ghost use Rattle.sts_fields.specs.Base.{base_date, year_of};

/// A base date: the first of January, 00:00 UTC, from which identifiers count the minutes.
#[derive(Clone, Copy, Debug, PartialEq, Eq, Hash)]
pub enum Base {
    Y1993,
    Y2014,
    Y2035,
}

impl Base {
    /// The base date of a year, or `None` exactly where the year has none.
    pub fn of_year(year: u32) -> Option<Base>
        ensures known { IsSome result ↔ ((year ≡ 1993) ⊎ (year ≡ 2014) ⊎ (year ≡ 2035)) }
        ensures value { IfSome result (λ base. year_of base ≡ year) }
    {
        match year {
            1993 => Some(Base::Y1993),
            2014 => Some(Base::Y2014),
            2035 => Some(Base::Y2035),
            _ => None,
        }
    }

    /// The year whose first of January it is.
    pub fn year(self) -> u32
        ensures { result ≡ year_of self }
    {
        match self {
            Base::Y1993 => 1993,
            Base::Y2014 => 2014,
            Base::Y2035 => 2035,
        }
    }
}

// The base date in Unix seconds.
pub(crate) fn seconds(base: Base) -> u32
    ensures { result ≡ base_date base }
{
    match base {
        Base::Y1993 => 725_846_400,
        Base::Y2014 => 1_388_534_400,
        Base::Y2035 => 2_051_222_400,
    }
}
