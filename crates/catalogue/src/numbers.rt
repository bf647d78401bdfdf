// The table of the catalogue: tag, type, count and status of each line.
use crate::Line;
use crate::Status::{Optional, Required, RequiredFrom};

// The types of the lines, by the papers' names.
const INT16: u32 = 3;

const INT32: u32 = 4;

const STRING: u32 = 6;

const BIN: u32 = 7;

const STRING_ARRAY: u32 = 8;

const TRANSLATED: u32 = 9;

// One line: `None` is any count.
macro_rules! line {
    ($tag:expr, $ty:expr, $count:expr, $status:expr) => {
        Line { tag: $tag, ty: $ty, count: $count, status: $status }
    };
}

// First the signature's lines, then the header's, tags rising in each.
pub(crate) static CATALOGUE: [Line; Line::ALL] = [
    // the signature: table 1-4
    line!(62, BIN, Some(16), Optional),
    line!(63, BIN, Some(16), Optional),
    line!(100, STRING_ARRAY, None, Optional),
    // table 1-5
    line!(1000, INT32, Some(1), Required),
    // table 1-7
    line!(1002, BIN, None, Optional),
    // table 1-6
    line!(1004, BIN, Some(16), Required),
    // table 1-7
    line!(1005, BIN, None, Optional),
    // table 1-5
    line!(1007, INT32, Some(1), Optional),
    // table 1-6
    line!(1010, STRING, Some(1), Optional),
    // table 1-7
    line!(1011, BIN, None, Optional),
    line!(1012, BIN, None, Optional),
    // the header: table 1-4
    line!(62, BIN, Some(16), Optional),
    line!(63, BIN, Some(16), Optional),
    line!(100, STRING_ARRAY, None, Required),
    // table 1-8
    line!(1000, STRING, Some(1), Required),
    line!(1001, STRING, Some(1), Required),
    line!(1002, STRING, Some(1), Required),
    line!(1004, TRANSLATED, None, Required),
    line!(1005, TRANSLATED, None, Required),
    // table 1-14
    line!(1006, INT32, Some(1), Optional),
    line!(1007, STRING, Some(1), Optional),
    // table 1-8
    line!(1009, INT32, Some(1), Required),
    line!(1010, STRING, Some(1), Optional),
    line!(1011, STRING, Some(1), Optional),
    line!(1014, STRING, Some(1), Required),
    line!(1016, TRANSLATED, None, Required),
    line!(1020, STRING, Some(1), Optional),
    line!(1021, STRING, Some(1), Required),
    line!(1022, STRING, Some(1), Required),
    // table 1-9
    line!(1023, STRING, Some(1), Optional),
    line!(1024, STRING, Some(1), Optional),
    line!(1025, STRING, Some(1), Optional),
    line!(1026, STRING, Some(1), Optional),
    // table 1-10
    line!(1027, STRING_ARRAY, None, Optional),
    line!(1028, INT32, None, Required),
    line!(1030, INT16, None, Required),
    line!(1033, INT16, None, Required),
    line!(1034, INT32, None, Required),
    line!(1035, STRING_ARRAY, None, Required),
    line!(1036, STRING_ARRAY, None, Required),
    line!(1037, INT32, None, Required),
    line!(1039, STRING_ARRAY, None, Required),
    line!(1040, STRING_ARRAY, None, Required),
    // table 1-8
    line!(1044, STRING, Some(1), Optional),
    // table 1-14
    line!(1045, INT32, None, Optional),
    // table 1-8
    line!(1046, INT32, Some(1), Optional),
    // table 1-11
    line!(1047, STRING_ARRAY, None, Required),
    line!(1048, INT32, None, Required),
    line!(1049, STRING_ARRAY, None, Required),
    line!(1050, STRING_ARRAY, None, Required),
    line!(1053, INT32, None, Optional),
    line!(1054, STRING_ARRAY, None, Optional),
    line!(1055, STRING_ARRAY, None, Optional),
    // table 1-8
    line!(1064, STRING, Some(1), Optional),
    // table 1-14
    line!(1080, INT32, None, Optional),
    line!(1081, STRING_ARRAY, None, Optional),
    line!(1082, STRING_ARRAY, None, Optional),
    // table 1-9
    line!(1085, STRING, Some(1), Optional),
    line!(1086, STRING, Some(1), Optional),
    line!(1087, STRING, Some(1), Optional),
    line!(1088, STRING, Some(1), Optional),
    // table 1-11
    line!(1090, STRING_ARRAY, None, Optional),
    // table 1-8
    line!(1094, STRING, Some(1), Optional),
    // table 1-10
    line!(1095, INT32, None, Required),
    line!(1096, INT32, None, Required),
    line!(1097, STRING_ARRAY, None, Required),
    // table 1-11
    line!(1112, INT32, None, Required),
    line!(1113, STRING_ARRAY, None, Required),
    line!(1114, INT32, None, Optional),
    line!(1115, STRING_ARRAY, None, Optional),
    // table 1-10
    line!(1116, INT32, None, Optional),
    line!(1117, STRING_ARRAY, None, Optional),
    line!(1118, STRING_ARRAY, None, Optional),
    // table 1-14
    line!(1122, STRING, Some(1), Optional),
    // table 1-8
    line!(1123, STRING, Some(1), Optional),
    line!(1124, STRING, Some(1), Required),
    line!(1125, STRING, Some(1), Required),
    line!(1126, STRING, Some(1), Required),
    // table 1-14
    line!(1131, STRING, Some(1), Optional),
    line!(1132, STRING, Some(1), Optional),
    // house lines
    line!(20001, BIN, None, Required),
    line!(20002, INT32, Some(1), RequiredFrom(2)),
];
