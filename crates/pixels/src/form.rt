// In what the pixel calls differ, apart from their output. A form goes by value, last among the arguments.
#[derive(Clone, Copy)]
pub struct Form {
    pub lanes: usize, // How many lines go through a kernel together: 4, 8, or any other number for one. Kept: a number (`passes::block`).
    pub rowwise: bool, // Whether the coefficients stand row after row; where not, column after column.
    pub strict: bool, // Whether a coefficient out of range is refused; where not, it is clamped.
}

pub const STRICT: Form = Form {
    lanes: 1,
    rowwise: false,
    strict: true,
};

pub const STRICT_LANES: Form = Form {
    lanes: 4,
    rowwise: false,
    strict: true,
};

pub const STRICT_LANES8: Form = Form {
    lanes: 8,
    rowwise: false,
    strict: true,
};

pub const STRICT_ROWS: Form = Form {
    lanes: 1,
    rowwise: true,
    strict: true,
};

pub const STRICT_ROWS_LANES: Form = Form {
    lanes: 4,
    rowwise: true,
    strict: true,
};

pub const STRICT_ROWS_LANES8: Form = Form {
    lanes: 8,
    rowwise: true,
    strict: true,
};

pub const CLAMPED: Form = Form {
    lanes: 1,
    rowwise: false,
    strict: false,
};

pub const CLAMPED_LANES: Form = Form {
    lanes: 4,
    rowwise: false,
    strict: false,
};
