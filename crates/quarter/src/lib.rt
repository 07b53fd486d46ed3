// The constant table of directions: a quarter of the circle, and by symmetry the whole.
#![tactic(auto)]

ghost use Rattle.std.specs.Prelude.{◌≡◌, ◌≤◌, pos, if◌then◌else◌, slice_index_or};
ghost use Rattle.quarter.specs.Bisection.{Circle};
ghost use Rattle.quarter.specs.Entries.{quarter, entry, quarters_onward, Short};
ghost use Rattle.quarter.specs.Table.{quarter_table};

// A direction: neither part is longer than 2^30.
#[derive(Clone, Copy, Debug, PartialEq, Eq)]
pub struct Direction {
    pub c: i32,
    pub s: i32,
    pub ghost short: { Short (c, s) },
}

impl Direction {
    // The direction a quarter of the circle further, where it is to go there.
    fn quarter_on(self, further: bool) -> Direction
        ensures answer { (result.c, result.s) ≡ quarters_onward (if further then 1 else 0) (self.c, self.s) }
    {
        if further {
            Direction {
                c: -self.s,
                s: self.c,
            }
        } else {
            self
        }
    }

    // The same of half the circle: two steps of a quarter in its place were tried, and cost each turn a jump.
    fn half_on(self, further: bool) -> Direction
        ensures answer { (result.c, result.s) ≡ quarters_onward (if further then 2 else 0) (self.c, self.s) }
    {
        if further {
            Direction {
                c: -self.c,
                s: -self.s,
            }
        } else {
            self
        }
    }
}

// Entries 0 to 128, each (c, s) of the length 2^30. A static is read in place, where a const would be copied whole.
static TABLE: [(i32, i32); 129] = [
    (1073741824, 0),
    (1073660973, 13176464),
    (1073418433, 26350943),
    (1073014240, 39521454),
    (1072448455, 52686014),
    (1071721163, 65842639),
    (1070832474, 78989349),
    (1069782522, 92124163),
    (1068571464, 105245103),
    (1067199483, 118350194),
    (1065666786, 131437462),
    (1063973603, 144504935),
    (1062120190, 157550647),
    (1060106826, 170572632),
    (1057933813, 183568930),
    (1055601480, 196537583),
    (1053110176, 209476638),
    (1050460278, 222384147),
    (1047652185, 235258165),
    (1044686319, 248096755),
    (1041563127, 260897982),
    (1038283080, 273659919),
    (1034846671, 286380643),
    (1031254418, 299058239),
    (1027506862, 311690799),
    (1023604567, 324276419),
    (1019548121, 336813204),
    (1015338135, 349299267),
    (1010975242, 361732726),
    (1006460101, 374111709),
    (1001793390, 386434353),
    (996975813, 398698801),
    (992008095, 410903207),
    (986890984, 423045732),
    (981625251, 435124548),
    (976211689, 447137836),
    (970651113, 459083786),
    (964944360, 470960600),
    (959092291, 482766489),
    (953095786, 494499676),
    (946955747, 506158392),
    (940673101, 517740883),
    (934248793, 529245404),
    (927683791, 540670222),
    (920979083, 552013618),
    (914135678, 563273882),
    (907154609, 574449320),
    (900036925, 585538248),
    (892783698, 596538995),
    (885396022, 607449906),
    (877875009, 618269338),
    (870221790, 628995660),
    (862437520, 639627258),
    (854523370, 650162530),
    (846480532, 660599890),
    (838310216, 670937766),
    (830013655, 681174602),
    (821592096, 691308855),
    (813046809, 701339000),
    (804379079, 711263525),
    (795590213, 721080937),
    (786681534, 730789757),
    (777654384, 740388522),
    (768510122, 749875788),
    (759250125, 759250125),
    (749875788, 768510122),
    (740388522, 777654384),
    (730789757, 786681534),
    (721080937, 795590213),
    (711263525, 804379079),
    (701339000, 813046809),
    (691308855, 821592096),
    (681174602, 830013655),
    (670937766, 838310216),
    (660599890, 846480532),
    (650162530, 854523370),
    (639627258, 862437520),
    (628995660, 870221790),
    (618269338, 877875009),
    (607449906, 885396022),
    (596538995, 892783698),
    (585538248, 900036925),
    (574449320, 907154609),
    (563273882, 914135678),
    (552013618, 920979083),
    (540670222, 927683791),
    (529245404, 934248793),
    (517740883, 940673101),
    (506158392, 946955747),
    (494499676, 953095786),
    (482766489, 959092291),
    (470960600, 964944360),
    (459083786, 970651113),
    (447137836, 976211689),
    (435124548, 981625251),
    (423045732, 986890984),
    (410903207, 992008095),
    (398698801, 996975813),
    (386434353, 1001793390),
    (374111709, 1006460101),
    (361732726, 1010975242),
    (349299267, 1015338135),
    (336813204, 1019548121),
    (324276419, 1023604567),
    (311690799, 1027506862),
    (299058239, 1031254418),
    (286380643, 1034846671),
    (273659919, 1038283080),
    (260897982, 1041563127),
    (248096755, 1044686319),
    (235258165, 1047652185),
    (222384147, 1050460278),
    (209476638, 1053110176),
    (196537583, 1055601480),
    (183568930, 1057933813),
    (170572632, 1060106826),
    (157550647, 1062120190),
    (144504935, 1063973603),
    (131437462, 1065666786),
    (118350194, 1067199483),
    (105245103, 1068571464),
    (92124163, 1069782522),
    (78989349, 1070832474),
    (65842639, 1071721163),
    (52686014, 1072448455),
    (39521454, 1073014240),
    (26350943, 1073418433),
    (13176464, 1073660973),
    (0, 1073741824),
];

// How many entries make a quarter of the circle.
const QUARTER: u32 = 128;

fn within_quarter(place: usize) -> Direction
    requires { place ≤ quarter }
    ensures answer { (result.c, result.s) ≡ slice_index_or quarter_table place (pos 0, pos 0) }
{
    let (c, s) = TABLE[place];
    Direction { c, s }
}

// Entry e of the circle, for every e. Two choices make no jump, where four ways would: turns are the innermost loop.
pub fn entry(e: u32) -> Direction
    ensures answer { (result.c, result.s) ≡ entry e }
{
    let first = within_quarter((e % QUARTER) as usize);
    let quarters = e / QUARTER % 4;
    first.quarter_on(quarters % 2 == 1).half_on(quarters >= 2)
}

// The table is the one that bisection makes, and goes on round the circle by quarters.
pub fn table_stands()
    ensures answer { Circle }
{}
