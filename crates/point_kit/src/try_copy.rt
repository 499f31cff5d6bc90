//! Copies of all that owns memory.
use crate::{Cell, Export, ExportPoint, Held, Key, Payload, Shape, SharedStream, Stream, WriterId};
use attr_kit::{NoMemory, TryCopy};

impl TryCopy for Shape {
    fn try_copy(&self) -> Result<Shape, NoMemory> {
        Shape::try_copy(self)
    }
}

impl TryCopy for WriterId {
    fn try_copy(&self) -> Result<WriterId, NoMemory> {
        WriterId::try_copy(self)
    }
}

impl TryCopy for Stream {
    fn try_copy(&self) -> Result<Stream, NoMemory> {
        Stream::try_copy(self)
    }
}

impl TryCopy for SharedStream {
    fn try_copy(&self) -> Result<SharedStream, NoMemory> {
        SharedStream::try_copy(self)
    }
}

impl TryCopy for Key {
    fn try_copy(&self) -> Result<Key, NoMemory> {
        Key::try_copy(self)
    }
}

impl TryCopy for Payload {
    fn try_copy(&self) -> Result<Payload, NoMemory> {
        Payload::try_copy(self)
    }
}

impl TryCopy for ExportPoint {
    fn try_copy(&self) -> Result<ExportPoint, NoMemory> {
        ExportPoint::try_copy(self)
    }
}

impl TryCopy for Export {
    fn try_copy(&self) -> Result<Export, NoMemory> {
        Export::try_copy(self)
    }
}

impl<P: TryCopy> TryCopy for Held<P> {
    fn try_copy(&self) -> Result<Held<P>, NoMemory> {
        Held::try_copy(self)
    }
}

impl<P: TryCopy> TryCopy for Cell<P> {
    fn try_copy(&self) -> Result<Cell<P>, NoMemory> {
        Cell::try_copy(self)
    }
}
