//! Laws of nodes on parts. A function that calls one may rest on it.

ghost use Rattle.viz_node_answers.specs.Answers.{
  AppendAnswers,
  BoundaryAnswers,
  ImageSectionAnswers,
  MergeAnswers,
  SectionAnswers,
  SelectionAnswers,
  TetsAnswer,
  WriterAnswers,
};
ghost use Rattle.viz_node_answers.specs.ImageAnswers.{ArithAnswers, BlockAnswers};

/// Of parts of meshes that feed a node, the filters on parts make parts of what the node makes.
pub fn mesh_filters_answer()
    ensures selection { SelectionAnswers }
    ensures section { SectionAnswers }
    ensures boundary { BoundaryAnswers }
    ensures appended { AppendAnswers }
    ensures merged { MergeAnswers }
    ensures writer { WriterAnswers }
{}

/// Of the block of an image that a piece asks for, the tetrahedra and sections of blocks are parts
/// of those that the node makes of the image.
pub fn image_filters_answer()
    ensures tets { TetsAnswer }
    ensures section { ImageSectionAnswers }
{}

/// Of any blocks of the images that feed a node, the filters of images make a block of the image
/// that the node makes, wherever it lies in that image.
pub fn blocks_answer()
    ensures filtered { BlockAnswers }
    ensures arith { ArithAnswers }
{}
