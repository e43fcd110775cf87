//! Where the parts of every picture lie on its paper, and how large they are, in units of the
//! paper's coordinates: from its left, from its top, and a digit is some 7 units wide.

/// The left end of a plot, where also the bars of a book begin.
pub const LEFT: u32 = 68;

/// The right end of a plot.
pub const RIGHT: u32 = 468;

/// The upper end of a plot.
pub const TOP: u32 = 44;

/// The lower end of a plot.
pub const BOTTOM: u32 = 304;

/// How wide a plot is: from its left end to its right one.
pub const PLOT_WIDTH: u32 = 400;

/// How high a plot is: from its upper end to its lower one.
pub const PLOT_HEIGHT: u32 = 260;

/// How high the paper of a plot is.
pub const PAPER_HEIGHT: u32 = 346;

/// Where prices end that are written at the left of a plot or of a bar.
pub const PRICES_END: u32 = 60;

/// The foot of the word over these prices.
pub const PRICE_WORD_FOOT: u32 = 32;

/// How far words have their foot below the middle of what they stand at.
pub const TO_FOOT: u32 = 4;

/// The lower end of a mark on the axis from the left.
pub const MARKS_END: u32 = 308;

/// The foot of the number below such a mark.
pub const NUMBERS_FOOT: u32 = 320;

/// The foot of the words in the last row of the paper: the legend, and what the axis shows.
pub const LEGEND_FOOT: u32 = 340;

/// The upper end of a colour in the legend.
pub const LEGEND_TOP: u32 = 332;

/// How wide a colour in the legend is.
pub const LEGEND_WIDTH: u32 = 16;

/// How far from the left end of a colour in the legend its words begin.
pub const TO_LEGEND_WORDS: u32 = 21;

/// How high a bar is.
pub const BAR_HEIGHT: u32 = 9;

/// The radius of the badge of an order.
pub const BADGE_RADIUS: u32 = 7;
