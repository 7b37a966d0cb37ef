use capacity::units::{AxialFigure, BucklingFigure, MomentFigure};

// What tension is judged by.
#[derive(Clone, Copy)]
pub struct TensionFigures {
    pub moment: MomentFigure,
    pub tension: AxialFigure,
}

// What compression is judged by.
#[derive(Clone, Copy)]
pub struct CompressionFigures {
    pub moment: MomentFigure,
    pub buckling: BucklingFigure,
    pub crushing: AxialFigure,
}
