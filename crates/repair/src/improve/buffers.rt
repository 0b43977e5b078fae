// The mesh in the lent buffers.

// The buffers that `improve` may change: their first places hold the mesh.
#[derive(Drop)]
pub struct Buffers<'a> {
    pub parameters: &'a mut [f64],
    pub points: &'a mut [f64],
    pub masks: &'a mut [u32],
    pub elements: &'a mut [u32],
    pub surface: &'a mut [u32],
}
