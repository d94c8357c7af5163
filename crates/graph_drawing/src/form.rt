/// In what a picture is written.
#[derive(Clone, Copy)]
pub enum Form {
    /// As SVG, with every place.
    Svg,
    /// As DOT, for Graphviz to lay out.
    Dot,
}
