// The numbers of the refusals, R17, by their grounds: the rule of refusal n is R(20 + n). What the sums find has its number in `sums` (R27 to R29).

// R21: the clock is too late to ask.
pub const LATE: u16 = 1;

// R22: every slot holds a line.
pub const FULL: u16 = 2;

// R23: a line waits to start.
pub const WAITING: u16 = 3;

// R24: a line is not sound, or the counts are too many.
pub const UNSOUND: u16 = 4;

// R25: a line would have a period that it may not have.
pub const MISSTRETCHED: u16 = 5;

// R26: the new line does not fit its period.
pub const MISFIT: u16 = 6;

// R30: the running lines have an excess.
pub const SHORT: u16 = 10;

// R31: the bytes are no card, or no image.
pub const BROKEN: u16 = 11;

// R33: the lent buffer is too short.
pub const NO_ROOM: u16 = 13;

// R34: a period ends short.
pub const MISSED: u16 = 14;

// R35: the clock's last tick.
pub const LAST_TICK: u16 = 15;

// R36: nobody there may leave.
pub const NOBODY_LEAVES: u16 = 16;
