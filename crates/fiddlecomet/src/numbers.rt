// The numbers that a host sees of each reply: "A refusal returns its number and zeros".
ghost use Rattle.std.specs.Prelude.{◌≡◌};
ghost use Rattle.meaning.specs.Replies.{listed_numbers, written_numbers, life_numbers, isolation_numbers, cover_numbers, branch_numbers};
ghost use Rattle.fiddlecomet.specs.Numbers.{listed_of, written_of, life_of, isolation_of, cover_of, count_of, ListedFits, WrittenFits, Small};

use meaning::{Cover, Isolation, Life, Listed};
use refusals::Refusal;

#[repr(C)]
#[derive(Clone, Copy, Debug, Default, PartialEq, Eq)]
pub struct ListedNumbers {
    pub refusal: u32,
    pub length: u32,
    pub rows: u32,
}

#[repr(C)]
#[derive(Clone, Copy, Debug, Default, PartialEq, Eq)]
pub struct WrittenNumbers {
    pub refusal: u32,
    pub length: u32,
}

#[repr(C)]
#[derive(Clone, Copy, Debug, Default, PartialEq, Eq)]
pub struct LifeNumbers {
    pub refusal: u32,
    pub dead: u32,
}

#[repr(C)]
#[derive(Clone, Copy, Debug, Default, PartialEq, Eq)]
pub struct IsolationNumbers {
    pub refusal: u32,
    pub leaks: u32,
    pub a: u32,
    pub b: u32,
}

#[repr(C)]
#[derive(Clone, Copy, Debug, Default, PartialEq, Eq)]
pub struct CoverNumbers {
    pub refusal: u32,
    pub covers: u32,
}

#[repr(C)]
#[derive(Clone, Copy, Debug, Default, PartialEq, Eq)]
pub struct CountNumbers {
    pub refusal: u32,
    pub count: u64,
}

// A number in 32 bits, which hold all of it where it is at most 65,536.
fn small(n: usize) -> u32
    ensures { Small n result }
{
    u32::try_from(n).unwrap_or(u32::MAX)
}

impl From<Result<Listed, Refusal>> for ListedNumbers {
    ghost from_gives = { λ reply r. ListedFits reply → listed_of r ≡ listed_numbers reply };

    fn from(reply: Result<Listed, Refusal>) -> ListedNumbers {
        match reply {
            Ok(listed) => ListedNumbers {
                refusal: 0,
                length: small(listed.length),
                rows: small(listed.count),
            },
            Err(e) => ListedNumbers {
                refusal: e.number(),
                ..ListedNumbers::default()
            },
        }
    }
}

impl From<Result<usize, Refusal>> for WrittenNumbers {
    ghost from_gives = { λ reply r. WrittenFits reply → written_of r ≡ written_numbers reply };

    fn from(reply: Result<usize, Refusal>) -> WrittenNumbers {
        match reply {
            Ok(length) => WrittenNumbers {
                refusal: 0,
                length: small(length),
            },
            Err(e) => WrittenNumbers {
                refusal: e.number(),
                ..WrittenNumbers::default()
            },
        }
    }
}

impl From<Result<Life, Refusal>> for LifeNumbers {
    ghost from_gives = { λ reply r. life_of r ≡ life_numbers reply };

    fn from(reply: Result<Life, Refusal>) -> LifeNumbers {
        match reply {
            Ok(Life::Live) => LifeNumbers::default(),
            Ok(Life::Dead) => LifeNumbers {
                dead: 1,
                ..LifeNumbers::default()
            },
            Err(e) => LifeNumbers {
                refusal: e.number(),
                ..LifeNumbers::default()
            },
        }
    }
}

impl From<Result<Isolation, Refusal>> for IsolationNumbers {
    ghost from_gives = { λ reply r. isolation_of r ≡ isolation_numbers reply };

    fn from(reply: Result<Isolation, Refusal>) -> IsolationNumbers {
        match reply {
            Ok(Isolation::Isolated) => IsolationNumbers::default(),
            Ok(Isolation::Leaks(a, b)) => IsolationNumbers {
                refusal: 0,
                leaks: 1,
                a,
                b,
            },
            Err(e) => IsolationNumbers {
                refusal: e.number(),
                ..IsolationNumbers::default()
            },
        }
    }
}

impl From<Result<Cover, Refusal>> for CoverNumbers {
    ghost from_gives = { λ reply r. cover_of r ≡ cover_numbers reply };

    fn from(reply: Result<Cover, Refusal>) -> CoverNumbers {
        match reply {
            Ok(Cover::Covers) => CoverNumbers {
                covers: 1,
                ..CoverNumbers::default()
            },
            Ok(Cover::Misses) => CoverNumbers::default(),
            Err(e) => CoverNumbers {
                refusal: e.number(),
                ..CoverNumbers::default()
            },
        }
    }
}

impl From<Result<u64, Refusal>> for CountNumbers {
    ghost from_gives = { λ reply r. count_of r ≡ branch_numbers reply };

    fn from(reply: Result<u64, Refusal>) -> CountNumbers {
        match reply {
            Ok(count) => CountNumbers { refusal: 0, count },
            Err(e) => CountNumbers {
                refusal: e.number(),
                ..CountNumbers::default()
            },
        }
    }
}
