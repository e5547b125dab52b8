//! How pictures look: colours and measures. `tools/tables` makes this file from data/look.json of the package for JavaScript.

// The colours with which one theme is drawn.
#[derive(Clone, Copy, Drop)]
pub(crate) struct Paints {
    pub(crate) paper: &'static str,
    pub(crate) ink: &'static str,
    pub(crate) pale_ink: &'static str,
    pub(crate) title_ink: &'static str,
    pub(crate) tint: &'static str,
    pub(crate) tint_opacity: &'static str,
}

pub(crate) const LIGHT: Paints = Paints {
    paper: "#ffffff",
    ink: "#33475b",
    pale_ink: "#7b8ea3",
    title_ink: "#4a5d72",
    tint: "#5b7fa6",
    tint_opacity: "0.09",
};

pub(crate) const DARK: Paints = Paints {
    paper: "#16202b",
    ink: "#d5dee8",
    pale_ink: "#8b9bad",
    title_ink: "#bcc8d4",
    tint: "#8fb4dc",
    tint_opacity: "0.1",
};

// How many levels are tinted, the drawing's own among them.
pub(crate) const TINTS: usize = 4;

pub(crate) const FONT: &str = "Helvetica, Arial, sans-serif";

// Around the drawing.
pub(crate) const MARGIN: f64 = 8.0;

// The width of lines.
pub(crate) const LINE: f64 = 1.4;

// The radius of the corners of boxes.
pub(crate) const CORNER: f64 = 5.0;

// The radius of the corners of round groups.
pub(crate) const ROUND: f64 = 15.0;

// The largest radius of a bend.
pub(crate) const BEND: f64 = 6.0;

// The radius of the dots of junctions.
pub(crate) const DOT: f64 = 2.6;

pub(crate) const ARROW_LENGTH: f64 = 8.0;

pub(crate) const ARROW_WIDTH: f64 = 7.0;

// A shorter head could not be seen.
pub(crate) const ARROW_SHORTEST: f64 = 4.0;

pub(crate) const TITLE_LEFT: f64 = 9.0;

pub(crate) const TITLE_TOP: f64 = 7.0;

// The least room above the content of a group in which its id is shown.
pub(crate) const TITLE_LEAST: f64 = 12.0;

// The inks of texts on fills, in capitals, which the style of a theme leaves alone.
pub(crate) const INK_ON_LIGHT: &str = "#33475B";

pub(crate) const INK_ON_DARK: &str = "#D5DEE8";

// From this luminance on, in thousandths of white's, texts have the ink of light pages.
pub(crate) const LIGHT_FILL: u32 = 445;

// Between the two others, texts are black above this luminance, and white up to it.
pub(crate) const MIDDLE_FILL: u32 = 179;

// Up to this luminance texts have the ink of dark pages.
pub(crate) const DARK_FILL: u32 = 120;

// The light that each step of a colour's channel gives, from 0 to 10,000.
pub(crate) static LIGHTS: [u32; 256] = [
    0, 3, 6, 9, 12, 15, 18, 21, 24, 27, 30, 33, 37, 40, 44, 48, 52, 56, 60, 65, 70, 75, 80, 86, 91,
    97, 103, 110, 116, 123, 130, 137, 144, 152, 160, 168, 176, 185, 194, 203, 212, 222, 232, 242,
    252, 262, 273, 284, 296, 307, 319, 331, 343, 356, 369, 382, 395, 409, 423, 437, 452, 467, 482,
    497, 513, 529, 545, 561, 578, 595, 612, 630, 648, 666, 685, 704, 723, 742, 762, 782, 802, 823,
    844, 865, 887, 908, 931, 953, 976, 999, 1022, 1046, 1070, 1095, 1119, 1144, 1170, 1195, 1221,
    1248, 1274, 1301, 1329, 1356, 1384, 1413, 1441, 1470, 1500, 1529, 1559, 1590, 1620, 1651, 1683,
    1714, 1746, 1779, 1812, 1845, 1878, 1912, 1946, 1981, 2016, 2051, 2086, 2122, 2159, 2195, 2232,
    2270, 2307, 2346, 2384, 2423, 2462, 2502, 2542, 2582, 2623, 2664, 2705, 2747, 2789, 2831, 2874,
    2918, 2961, 3005, 3050, 3095, 3140, 3185, 3231, 3278, 3325, 3372, 3419, 3467, 3515, 3564, 3613,
    3663, 3712, 3763, 3813, 3864, 3916, 3968, 4020, 4072, 4125, 4179, 4233, 4287, 4342, 4397, 4452,
    4508, 4564, 4621, 4678, 4735, 4793, 4851, 4910, 4969, 5029, 5089, 5149, 5210, 5271, 5333, 5395,
    5457, 5520, 5583, 5647, 5711, 5776, 5841, 5906, 5972, 6038, 6105, 6172, 6240, 6308, 6376, 6445,
    6514, 6584, 6654, 6724, 6795, 6867, 6939, 7011, 7084, 7157, 7231, 7305, 7379, 7454, 7529, 7605,
    7682, 7758, 7835, 7913, 7991, 8070, 8148, 8228, 8308, 8388, 8469, 8550, 8632, 8714, 8796, 8879,
    8963, 9047, 9131, 9216, 9301, 9387, 9473, 9560, 9647, 9734, 9823, 9911, 10000,
];

// The names of colours with their red, green and blue.
pub(crate) static COLOUR_NAMES: [(&str, (usize, usize, usize)); 18] = [
    ("black", (0, 0, 0)),
    ("silver", (192, 192, 192)),
    ("gray", (128, 128, 128)),
    ("grey", (128, 128, 128)),
    ("white", (255, 255, 255)),
    ("maroon", (128, 0, 0)),
    ("red", (255, 0, 0)),
    ("purple", (128, 0, 128)),
    ("fuchsia", (255, 0, 255)),
    ("green", (0, 128, 0)),
    ("lime", (0, 255, 0)),
    ("olive", (128, 128, 0)),
    ("yellow", (255, 255, 0)),
    ("navy", (0, 0, 128)),
    ("blue", (0, 0, 255)),
    ("teal", (0, 128, 128)),
    ("aqua", (0, 255, 255)),
    ("orange", (255, 165, 0)),
];
